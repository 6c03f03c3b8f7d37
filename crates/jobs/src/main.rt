// Many jobs in one run, each behind its two-byte count: prints the line of each, as the desk's program does of one. Its stored input
// and output hold the desk's answers under the gate.
#![tactic(auto)]

use job::sections::split;

// The descriptors of standard input and standard output.
const INPUT: i32 = 0;

const OUTPUT: i32 = 1;

// Prints the line of one job.
fn one(job: &[u8]) {
    let mut room = [0u8; 16384];
    let mut text = [0u8; 32832];
    let k = job::answer(job, &mut room, &mut text);
    io::write_all(OUTPUT, &text[..k]);
}

// Runs the jobs one after another; what is no whole job ends the input.
fn all(s: &[u8]) {
    let mut rest = s;
    while let Some((job, behind)) = split(rest) {
        one(job);
        rest = behind;
    }
}

fn main() {
    let mut input = io::large_buffer();
    let n = io::read_full(INPUT, &mut input);
    all(&input[..n]);
}
