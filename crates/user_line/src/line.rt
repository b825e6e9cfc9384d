// A line that has a form.
ghost use Rattle.std.specs.Prelude.{◌≡◌, length, IfOk, option_map};
ghost use Rattle.std.specs.List.{list_all};
ghost use Rattle.user_line.specs.Line.{has_count, is_line, is_plain, line_of, texts_of};
ghost use Rattle.user_line.specs.Line.{line_seen};

use crate::clap_reading::values_of;
use crate::form::Form;
use octet_core::Memory;
use std::alloc::Global;

/// A command and its words.
#[derive(Debug, Drop)]
pub struct Line<'a> {
    pub form: Form,
    /// As many as the command has, in order, with the further one or without it.
    pub words: Vec<&'a str>,
}

impl<'a> Line<'a> {
    /// The command and the words of a command line, the program's name left away; none where it
    /// has no form.
    pub fn read(alloc: Global, words: &'a [&'a str]) -> Result<Option<Line<'a>>, Memory>
        ensures { IfOk result (λ line. option_map line_seen line ≡ line_of (texts_of words.now)) }
    {
        let Some((name, others)) = words.split_first() else {
            return Ok(None);
        };
        let Some(form) = Form::of(name) else {
            return Ok(None);
        };
        if !is_line(form, others) {
            return Ok(None);
        }
        let words = values_of(alloc, form, words).map_err(|_| Memory)?;
        Ok(Some(Line { form, words }))
    }
}

// Whether these are the words of a command.
#[tactic(auto, using(crate::proofs::Values::plain_texts))]
fn is_line(form: Form, words: &[&str]) -> bool
    ensures { result ≡ is_line form (texts_of words.now) }
{
    has_count(form, words) && are_plain(words)
}

// Whether the command has as many, with the further one or without it.
#[tactic(auto, using(crate::proofs::Values::counted))]
fn has_count(form: Form, words: &[&str]) -> bool
    ensures { result ≡ has_count form (length (texts_of words.now)) }
{
    form.least() <= words.len() && words.len() <= form.ids().len()
}

fn are_plain(words: &[&str]) -> bool
    ensures { result ≡ list_all (λ word. is_plain word.now) words.now }
{
    words.iter().all(|word| is_plain(word))
}

// Whether a word isn't empty and doesn't begin with a hyphen.
fn is_plain(word: &str) -> bool
    ensures { result ≡ is_plain word.now }
{
    match word.as_bytes().first() {
        Some(octet) => *octet != b'-',
        None => false,
    }
}
