// A measurement, to be timed from outside: reads a network file, asks 1,000 times what refusals 2 to 5 say of it, and prints the sum
// of the numbers. Before each time the last byte of D changes, so that no answer stands for another.
#![tactic(auto)]

use refusal::Refusal;
use std::io;

fn number(v: Result<(), Refusal>) -> u64 {
    match v {
        Ok(()) => 0,
        Err(why) => u64::from(refusal::number_of(why)),
    }
}

fn touch(s: &mut [u8], value: u8) {
    if s.len() < 29 {
        return;
    }
    let at = s.len() - 29;
    s[at] = value;
}

fn repeat(s: &mut [u8]) -> u64 {
    let mut sum: u64 = 0;
    for i in 0u32..1000 {
        touch(s, (i % 2) as u8);
        sum = sum.wrapping_add(number(network_form::form_of(s)));
    }
    sum
}

fn main(rt: HostRuntime) -> io::Result<()> {
    let mut buf = [0u8; 32769];
    let file = console::read(&mut rt.stdin(), &mut buf);
    let sum = repeat(&mut buf[..file.len]);
    println!(rt; "{sum}")
}
