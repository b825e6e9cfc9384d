// A table as a text: behind each number that has a value, the value's word.
use sle_numbers::Numbered;
use std::alloc::Global;
use std::fmt::Display;
use std::process::Abort;
use std::test::Fail;

fn told<T: Numbered + Display>(alloc: Global) -> Result<String, Fail> {
    let mut text = String::new(alloc);
    for number in 0..=255u8 {
        if let Some(value) = T::from_number(number) {
            let row = format!(in alloc; "{} {value} ", value.number())?;
            text.push_str(row.as_str())?;
        }
    }
    Ok(text)
}

/// The table has these values, in the order of their numbers, and no other one.
pub fn check<T: Numbered + Display>(
    rt: &impl Abort,
    alloc: Global,
    rows: &str,
) -> Result<(), Fail> {
    let text = told::<T>(alloc)?;
    assert!(rt; text.split_whitespace().eq(rows.split_whitespace()));
    Ok(())
}
