// rowcheck (document 01): reads a bucket size, keys and asks from standard input, and prints what both indexes say of
// each ask.
//
// The longest valid input has 53,792 bytes: the buffer holds one byte more, so that a longer input is seen to be one
// (`WindowIsEnough` of rowanswer's specs). No text that is printed has more than 52,762 bytes (`LongestText`). What is
// read and what is written no contract can say: `answer` is proved from slice to slice, and this program is run and
// compared. The kit's `io` stays: it reads and prints what it can, where std's would answer with errors of their own, and
// no document names an end of the program for them.
#![tactic(auto)]

fn main() {
    let mut input = [0u8; 53793];
    let mut out = [0u8; 65536];
    let n = io::read_full(0, &mut input);
    let m = rowanswer::run::answer(&input[..n], &mut out);
    io::write_all(1, &out[..m]);
}
