// Tables as texts: how their rows are cut.
use std::alloc::Global;
use std::test::Fail;
use tp_value::NoMemory;

/// The parts of a row between these marks, without blanks around them.
pub fn parts<'a>(alloc: Global, row: &'a str, mark: char) -> Result<Vec<&'a str>, NoMemory> {
    let mut all = Vec::new(alloc);
    for part in row.split(mark) {
        all.push(part.trim())?;
    }
    Ok(all)
}

/// The number that a text is.
pub fn number(text: &str) -> Result<u64, Fail> {
    let number = text.parse::<u64>().ok().ok_or("no number")?;
    Ok(number)
}
