// A row is words, one blank apart, ` = ` and what they ask for; `|` ends it. What begins with `usage`
// asks for nothing. A row begins behind the line end before it.
use std::alloc::{AllocError, Global};
use std::str;
use std::test::Fail;
use user_task::Signing;
use user_words::{Identity, Plan};

// The octets of a name or a password, in hexadecimal digits where they aren't a text.
fn text_of(octets: &[u8]) -> &str {
    str::from_utf8(octets).unwrap_or("?")
}

fn signing_text(alloc: Global, signing: &Signing) -> Result<String, AllocError> {
    match signing {
        Signing::Unused => String::from_str(alloc, "none"),
        Signing::Used { hash, octets } => {
            let octets = text_of(octets.as_slice());
            format!(in alloc; "{hash:?}:{octets}")
        }
    }
}

fn identity_text(alloc: Global, identity: &Identity) -> Result<String, AllocError> {
    let name = text_of(identity.name.as_slice());
    let signing = signing_text(alloc, &identity.signing)?;
    let instance = &identity.instance;
    format!(in alloc; "{name} {signing} {instance}")
}

/// What words ask for.
pub fn told(alloc: Global, words: &[&str]) -> Result<String, Fail> {
    Ok(match Plan::read(alloc, words)? {
        None => String::from_str(alloc, "usage")?,
        Some(Plan::Show { service }) => format!(in alloc; "show {service}")?,
        Some(
            Plan::Talk {
                port,
                identity,
                asked,
                turns,
            },
        ) => {
            let identity = identity_text(alloc, &identity)?;
            format!(in alloc; "{port} {identity} {asked:?} {turns}")?
        }
    })
}

// Whether the words of a line ask for this.
fn is_read_so(alloc: Global, line: &str, value: &str) -> Result<bool, Fail> {
    let mut words = Vec::new(alloc);
    for word in line.split(' ') {
        words.push(word)?;
    }
    let told = told(alloc, words.as_slice())?;
    Ok(told.split_whitespace().eq(value.split_whitespace()))
}

/// The first row that isn't so.
pub fn wrong_row<'a>(alloc: Global, rows: &'a str) -> Result<Option<&'a str>, Fail> {
    for row in rows.split_terminator('|') {
        let row = row.strip_prefix('\n').unwrap_or(row);
        let (line, value) = row.rsplit_once(" = ").unwrap_or((row, ""));
        if !is_read_so(alloc, line.trim_end(), value)? {
            return Ok(Some(row));
        }
    }
    Ok(None)
}
