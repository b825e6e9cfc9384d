// Connections by the lines of scripts: each call once. Scripts of several connections are run by
// the built program. The expected octets were spelled by hand (X.690, and CCSDS 911.1-B and 913.1-B
// for the fields of the messages).
ghost use Rattle.std.specs.Prelude.{◌<◌};
ghost use Rattle.station_config.specs.Validity.{IsSite};

use drill_text::{ScriptLine, parse_line, write_line};
use octet_core::{Memory, Octets};
use record_form::Entries;
use station_book::Book;
use station_config::Site;
use station_links::{Connection, LinkLine, Turn, laws};
use std::alloc::Global;
use std::process::Abort;

const SITE: &[u8] = b"\
peer MOC none sha1 60 000000000000\n\
raf sagr=1.spack=P.rsl-fg=1.raf=onlc1 MOC complete 1 5 60\n\
cltu sagr=1.spack=P.fsl-fg=1.cltu=cltu1 MOC 1000 100 60\n";

// Lines, behind each of which connection 1 makes a round, and what it says. The first has a BIND of
// MOC to onlc1, version 5, in two pieces, and the second the same by its words.
const SCRIPTS: [(&str, &str); 6] = [
    (
        "\
ask 1 context 30 5
in 1 010000000000005dbf645a80001a034d4f431a05504f525431020100020105304431
in 1 0e300c06072b7004030102341a0131310e300c06072b7004030102351a0150310e300c06072b7004030102261a0131\
3112301006072b7004030102161a056f6e6c6331
shut 1",
        "\
sent 1 0100000000000011bf650e80001a0753544154494f4e800105
ended 1 closed
",
    ),
    (
        "\
ask 1 context 30 5
ask 1 bind MOC 0 5 sagr=1.spack=P.rsl-fg=1.raf=onlc1
ask 1 unbind",
        "\
sent 1 0100000000000011bf650e80001a0753544154494f4e800105
sent 1 0100000000000007bf670480008000
ended 1 unbound
",
    ),
    (
        "\
ask 1 context 30 5
stall 1 1
ask 1 bind MOC 0 5 sagr=1.spack=P.rsl-fg=1.raf=onlc1
round 1 1",
        "\
stalled 1
sent 1 0100000000000011bf650e80001a0753544154494f4e800105
",
    ),
    (
        "\
ask 1 context 30 5
ask 1 bind MOC 0 5 sagr=1.spack=P.rsl-fg=1.raf=onlc1
ask 1 start 20000/2/0 20000/1/0 0
ask 1 start none 20000/1/5p 2
ask 1 stop
ask 1 unbind",
        "\
sent 1 0100000000000011bf650e80001a0753544154494f4e800105
sent 1 010000000000000ca10a8000020100a103810103
sent 1 0100000000000009a10780000201008000
sent 1 0100000000000009a30780000201008000
sent 1 0100000000000007bf670480008000
ended 1 unbound
",
    ),
    (
        "\
ask 1 context 30 5
ask 1 bind MOC 16 5 sagr=1.spack=P.fsl-fg=1.cltu=cltu1
ask 1 start 7
ask 1 cltu 7 none 20000/0/10 0 1 aa0007
ask 1 cltu 9 none none 0 1 aa0009",
        "\
sent 1 0100000000000011bf650e80001a0753544154494f4e800105
sent 1 0100000000000015a1138000020100a00c800800000000000000008000
sent 1 0100000000000010ab0e8000020100020108020203e58000
sent 1 0100000000000013ab118000020100020108020203e5a103810102
",
    ),
    (
        "\
ask 1 context 30 5
break 1",
        "\
ended 1 fault
",
    ),
];

// What a line orders of a connection.
fn order(alloc: Global, line: &str, connection: &mut Connection) -> Result<(), Memory> {
    match parse_line(alloc, line.as_bytes()) {
        Ok(ScriptLine::Ask { ask, .. }) => connection.ask(alloc, &ask),
        Ok(ScriptLine::Piece { octets, .. }) => Ok(connection.arrive(octets)?),
        Ok(ScriptLine::Shut { .. }) => Ok(connection.shut()),
        Ok(ScriptLine::Break { .. }) => Ok(connection.break_poll()),
        Ok(ScriptLine::Stall { n, .. }) => Ok(connection.stall(n)),
        _ => Ok(()),
    }
}

fn write_lines(alloc: Global, said: &[LinkLine], text: &mut Octets) -> Result<(), Memory> {
    for line in said {
        write_line(alloc, &line.of_connection(1), text)?;
    }
    Ok(())
}

// A round, and the connection behind it, if it is there still.
fn turn(
    alloc: Global,
    site: &Site,
    book: &mut Book,
    connection: Connection,
    text: &mut Octets,
) -> Result<Option<Connection>, Memory>
    requires { IsSite site.now }
{
    let Turn { said, connection } = connection.round(alloc, site, book, 0)?;
    write_lines(alloc, &said, text)?;
    Ok(connection)
}

// What a connection says of these lines, as long as it is there.
fn play(
    alloc: Global,
    site: &Site,
    book: &mut Book,
    lines: &str,
    text: &mut Octets,
) -> Result<(), Memory>
    requires { IsSite site.now }
{
    let mut there = Connection::new(alloc, 1, 0)?;
    for line in lines.lines() {
        order(alloc, line, &mut there)?;
        match turn(alloc, site, book, there, text)? {
            Some(connection) => there = connection,
            None => return Ok(()),
        }
    }
    Ok(())
}

fn says_at(alloc: Global, site: &Site, lines: &str, text: &str) -> Result<bool, Memory>
    requires { IsSite site.now }
{
    let mut book = Book::new(alloc, site, Entries::new(alloc), 0)?;
    let mut said = Octets::new(alloc);
    play(alloc, site, &mut book, lines, &mut said)?;
    Ok(said.as_slice() == text.as_bytes())
}

fn says(alloc: Global, lines: &str, text: &str) -> Result<bool, Memory> {
    match Site::parse(alloc, SITE) {
        Ok(site) => says_at(alloc, &site, lines, text),
        Err(_) => Err(Memory),
    }
}

#[test]
fn scripts_say_what_they_say(rt: HostRuntime) {
    for (lines, text) in SCRIPTS {
        assert_eq!(rt; says(rt.alloc(), lines, text), Ok(true));
    }
    laws::runs_are_sessions();
}

#[test]
fn what_was_dropped_is_told(rt: HostRuntime) {
    let mut text = Octets::new(rt.alloc());
    assert_eq!(rt;
        write_lines(rt.alloc(), &[LinkLine::Discarded(3)], &mut text),
        Ok(())
    );
    assert_eq!(rt; text.as_slice(), b"discarded 1 3\n".as_slice());
}
