// How a lent buffer is printed: its name, and its places that are not zero.
use std::io;

pub fn places<T: Copy + Into<u64>>(rt: &impl Print, name: &str, values: &[T]) -> io::Result<()> {
    print!(rt; " {name}")?;
    for (i, value) in values.iter().enumerate() {
        place(rt, i, (*value).into())?;
    }
    Ok(())
}

fn place(rt: &impl Print, i: usize, value: u64) -> io::Result<()> {
    if value != 0 {
        print!(rt; " {i}={value}")?;
    }
    Ok(())
}
