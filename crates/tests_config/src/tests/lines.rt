// Lines and rows of words, and why they are none.
use crate::word_text::{At, Counted, Plain, Versions};
use station_config::SiteFault;
use std::process::Abort;
use std::test::Fail;
use words::{Cause, LineFault, Unread, Words, laws, read_row};

// A line `mark`.
pub const PLAIN: &str = "
mark|
 = bad|
mark  = bad|
\x20mark = bad|
marks = bad|
Mark = bad|
mark\r = bad|
mark\n = bad|
mark 1/2/3 = bad|";

// A line `mark TIME N`, of a number up to 2.
pub const COUNTED: &str = "
mark 1/2/3 2|
mark 20000/1000/5p 2|
mark 1/2/3  2 = bad|
mark 1/2/3 2  = bad|
mark\t1/2/3 2 = bad|
mark 1/2/3 = bad|
mark 1/2/3 3 = bad|
mark 1/2/3 2 2 = bad|
1/2/3 2 = bad|";

// What stands behind a line's first word: a time and a number up to 2. The number of words is told
// before a bad word.
pub const TWO: &str = "
 = wrong number of words|
\x20x = wrong number of words|
\x20x y z = wrong number of words|
\x20x 1 = a word malformed or out of range|
\x200/0/0 3 = a word malformed or out of range|
\x20\x20 = a word malformed or out of range|
\x200/0/0 2|";

pub const NO: &str = "
|
\x20 = wrong number of words|";

// One word `mark` at most.
pub const AT_MOST: &str = "
|
\x20mark|
\x20 = a word malformed or out of range|
\x20mark mark = wrong number of words|";

// One to four numbers from 4 to 9.
pub const MANY: &str = "
\x204|
 = wrong number of words|
\x204 4 4 4 4 = wrong number of words|
\x204 10 = a word malformed or out of range|";

#[test]
fn a_row_knows_how_many_words_it_has(rt: HostRuntime) {
    assert!(rt; Plain::takes(1) && !Plain::takes(0) && !Plain::takes(2));
    assert!(rt; Counted::takes(3) && !Counted::takes(2) && !Counted::takes(4));
    assert!(rt;
        Versions::takes(1) && Versions::takes(4) && !Versions::takes(0) && !Versions::takes(5)
    );
}

#[test]
fn numbers_come_in_their_order(rt: HostRuntime) -> Result<(), Fail> {
    let versions = read_row::<Versions>(rt.alloc(), Some(b"9 4 4 5"))?;
    assert_eq!(rt; versions.as_slice(), [9, 4, 4, 5].as_slice());
    Ok(())
}

const FAULT_WORDS: &str = "unknown first word, wrong number of words, a word malformed or out of \
    range, out of memory; outside the grammar, out of memory; line 2: cause 3, out of memory";

#[test]
fn faults_have_words_of_their_own(rt: HostRuntime) -> Result<(), Fail> {
    let told = format!(in rt.alloc();
        "{}, {}, {}, {}; {}, {}; {}, {}",
        LineFault::Line(Cause::FirstWord),
        LineFault::Line(Cause::Count),
        LineFault::Line(Cause::Word),
        LineFault::Memory,
        Unread::Bad,
        Unread::Memory,
        SiteFault::BadLine {
            number: 2,
            cause: 3,
        },
        SiteFault::Memory
    )?;
    assert_eq!(rt; told.as_str(), FAULT_WORDS);
    Ok(())
}

// The law at three forms: what it asks of a row is computed.
#[test]
fn the_lines_of_a_form_are_exact() {
    laws::lines_are_exact::<Plain>();
    laws::lines_are_exact::<At>();
    laws::lines_are_exact::<Counted>();
}
