// The sixth, seventh, eighth and eleventh mornings as scripts, each with the text that answers it.
use std::io;
use transcript::transcript;

fn run(rt: &impl Print, label: &str, script: &[u8]) -> io::Result<()> {
    let mut room = [0u8; 512];
    println!(rt; "{label}")?;
    let end = transcript(script, &mut room);
    rt.write_all(&room[..end])
}

// 1 = 2, 2 active: a round to its end; message 1 withheld until round 2 is over; message 0 delivered twice.
pub fn two_nodes(rt: &impl Print) -> io::Result<()> {
    run(
        rt,
        "morning 6",
        b"2 12 1 1 2 0 0 0 0 0 0 0 0 0 16 5 0 0 1 1 0 0 1 1 0 1 2 0 1 3 0",
    )?;
    run(
        rt,
        "morning 7",
        b"2 12 1 1 2 0 0 0 0 0 0 0 0 0 16 8 0 0 1 1 0 0 0 0 2 1 2 0 1 3 0 1 4 0 1 5 0 1 1 0",
    )?;
    run(
        rt,
        "morning 8",
        b"2 12 1 1 2 0 0 0 0 0 0 0 0 0 16 3 0 0 1 1 0 0 1 0 0",
    )
}

// One active node: round 10 after 9, not 9 after 10; the last round, and nothing after it.
pub fn rounds(rt: &impl Print) -> io::Result<()> {
    run(
        rt,
        "morning 11, rounds",
        b"1 6 0 0 0 0 0 0 16 6 0 0 9 0 0 10 0 0 9 0 0 65535 0 0 65536 0 0 65535",
    )
}
