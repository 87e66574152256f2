// What is printed of a refusal and of a set, on standard output.
use nodes::Set;
use std::io;
use waits::Refusal;

pub fn refusal(rt: &impl Print, r: Refusal) -> io::Result<()> {
    let row = r.row;
    print!(rt; "refused {} row {}", r.reason.number(), row.0)
}

// The members of a set, each after a space.
pub fn members(rt: &impl Print, s: Set) -> io::Result<()> {
    for k in s.members() {
        print!(rt; " {}", k.0)?;
    }
    if s.is_empty() {
        print!(rt; " none")?;
    }
    Ok(())
}
