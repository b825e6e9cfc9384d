// The words that the system gives a program.
ghost use Rattle.std.specs.Prelude.{◌≡◌, ◌↔◌, IfOk, IfErr, IsErr, [], drop, map, string_bytes};
ghost use Rattle.std.specs.IoError.{error_kind};
ghost use Rattle.std.specs.Vec.Iter.{into_iter_items};

use std::alloc::{AllocError, Global};
use std::env::Args;
use std::io;
use std::io::ErrorKind;

/// The words behind the program's name. A word that is no text is outside every command, as no word
/// at all is.
pub fn words_of(alloc: Global, arguments: io::Result<Args>) -> Result<Vec<String>, AllocError>
    ensures words { IfOk arguments (λ arguments. IfOk result
        (λ words. words.items ≡ drop 1 (into_iter_items arguments))) }
    ensures no_text { IfErr arguments (λ _. IfOk result (λ words. words.items ≡ [])) }
    ensures memory { IfErr arguments
        (λ error. IsErr result ↔ (error_kind error ≡ ErrorKind.OutOfMemory)) }
{
    match arguments {
        Ok(arguments) => behind_name(alloc, arguments),
        Err(error) if error.kind() == ErrorKind::OutOfMemory => Err(AllocError),
        Err(_) => Ok(Vec::new(alloc)),
    }
}

// The arguments behind the first, which is the program's name.
fn behind_name(alloc: Global, arguments: Args) -> Result<Vec<String>, AllocError>
    ensures { IfOk result (λ words. words.items ≡ drop 1 (into_iter_items arguments)) }
{
    let mut arguments = arguments;
    match arguments.next() {
        Some(_) => gathered(alloc, arguments),
        None => Ok(Vec::new(alloc)),
    }
}

// All of these arguments.
fn gathered(alloc: Global, arguments: Args) -> Result<Vec<String>, AllocError>
    ensures { IfOk result (λ words. words.items ≡ into_iter_items arguments) }
{
    let mut words = Vec::new(alloc);
    let mut arguments = arguments;
    while let Some(word) = arguments.next() {
        words.push(word)?;
    }
    Ok(words)
}

/// The words, lent as texts.
pub fn texts_of(alloc: Global, words: &[String]) -> Result<Vec<&str>, AllocError>
    ensures { IfOk result
        (λ texts. map (λ text. text.now) texts.items ≡ map string_bytes words.now) }
{
    let mut texts = Vec::new(alloc);
    for word in words {
        texts.push(word.as_str())?;
    }
    Ok(texts)
}
