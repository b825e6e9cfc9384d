// The head of a script: the configuration of its station.
ghost use Rattle.std.specs.Prelude.{◌≡◌, ◌≤◌, ◌+◌, IfSome, length, take, drop, option_map};
ghost use Rattle.station_config.specs.Drafts.{empty, told_from, site_told};
ghost use Rattle.words.specs.Parts.{parts};
ghost use Rattle.words.specs.Reading.{lent};
ghost use Rattle.script_head.specs.Lines.{lines_of};
ghost use Rattle.script_head.specs.Head.{before_end, behind_end, site_of, Splits};
ghost use Rattle.script_head.specs.Lines.{most_octets};

use crate::lines::split_line;

/// A script, split behind its head.
#[derive(Clone, Copy, Debug)]
pub struct Head<'a> {
    /// The text of the configuration, whose lines have the numbers that they have in the script.
    pub settings: &'a [u8],
    /// How many lines the head has.
    pub lines: u32,
    /// What stands behind the head, unless it isn't ended.
    pub rest: Option<&'a [u8]>,
}

// The lines that begin and end a head.
const SITE: &[u8] = b"site";

const END: &[u8] = b"end";

/// Splits a script behind its head. One without a head has the empty configuration.
pub fn split_head(script: &[u8]) -> Head<'_>
    requires { length script.now ≤ most_octets }
    ensures site { site_told result.settings.now ≡ site_of (lines_of script.now) }
    ensures splits { Splits (lines_of script.now) result.lines result.rest }
    ensures few { result.lines ≤ length script.now }
    ensures left { IfSome result.rest
        (λ rest. result.lines + length rest.now ≤ length script.now) }
{
    let (first, _) = split_line(script);
    if first != SITE {
        return Head {
            settings: &[],
            lines: 0,
            rest: Some(script),
        };
    }
    let others = behind_site(script);
    let found = find_end(others);
    let settings = &others[..found.octets];
    let Some(rest) = found.rest else {
        return Head {
            settings,
            lines: found.lines.max(1),
            rest: None,
        };
    };
    Head {
        settings,
        lines: found.lines + 1,
        rest: Some(rest),
    }
}

// What stands behind the word that begins the head: the line's end, as an empty line, and the other
// lines.
fn behind_site(script: &[u8]) -> &[u8]
    requires { 4 ≤ length script.now }
    ensures { result.now ≡ drop 4 script.now }
{
    &script[SITE.len()..]
}

// The lines up to the one that ends the head.
#[derive(Clone, Copy, Debug)]
struct Settings<'a> {
    // How many octets they have, and how many they are.
    octets: usize,
    lines: u32,
    // What stands behind the line that ends the head.
    rest: Option<&'a [u8]>,
}

// Goes over the lines of a text up to the one that ends the head.
fn find_end(text: &[u8]) -> Settings<'_>
    requires { length text.now ≤ most_octets }
    ensures told { told_from 1 empty (parts 10 (take result.octets text.now))
        ≡ told_from 1 empty (before_end (lines_of text.now)) }
    ensures within { result.octets ≤ length text.now }
    ensures few { result.lines ≤ length text.now }
    ensures count { result.lines ≡ length (before_end (lines_of text.now)) }
    ensures left { IfSome result.rest
        (λ rest. result.lines + 1 + length rest.now ≤ length text.now) }
    ensures behind { option_map lines_of (lent result.rest) ≡ behind_end (lines_of text.now) }
{
    let mut rest = text;
    let mut lines = 0u32;
    while !rest.is_empty() {
        let (line, behind) = split_line(rest);
        if line == END {
            return Settings {
                octets: text.len() - rest.len(),
                lines,
                rest: Some(behind),
            };
        }
        rest = behind;
        lines += 1;
    }
    Settings {
        octets: text.len(),
        lines,
        rest: None,
    }
}
