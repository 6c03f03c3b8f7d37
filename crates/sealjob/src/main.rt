// The desk's program: reads a job from standard input, runs it, and prints the one line of its answer.
#![tactic(auto)]

// The descriptors of standard input and standard output.
const INPUT: i32 = 0;

const OUTPUT: i32 = 1;

fn main() {
    // one byte more than the longest job, so that a longer one is seen to be longer
    let mut input = [0u8; 16385];
    let n = io::read_full(INPUT, &mut input);
    let mut room = [0u8; 16384];
    let mut text = [0u8; 32832];
    let k = job::answer(&input[..n], &mut room, &mut text);
    io::write_all(OUTPUT, &text[..k]);
}
