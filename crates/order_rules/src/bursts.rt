//! Bursts: each maker is slower or faster than others by up to a thousand times, and one of them
//! changes its speed now and then.

ghost use Rattle.std.specs.Prelude.{◌≡◌, ◌<◌, ◌≤◌, ◌^◌, length, slice_index_or};
ghost use Rattle.order_rules.specs.Rules.{by_speeds, speed, speeds, thrown_anew, with_place};

use crate::dice::{below, set_word, thrown, word, word_of};
use rand_xoshiro::SplitMix64;

/// The die, and a word for each maker, by which it has its speed.
#[derive(Drop)]
pub struct Bursts {
    pub dice: SplitMix64,
    pub words: [u64; 97],
}

/// The speed of a maker.
fn speed(words: &[u64; 97], maker: u32) -> u64
    ensures value { result ≡ speed words.now maker }
    ensures least { 0 < result }
    ensures most { result ≤ 1024 }
{
    match word_of(words, maker) % 6 {
        0 => 1,
        1 => 4,
        2 => 16,
        3 => 64,
        4 => 256,
        _ => 1024,
    }
}

/// The speeds of makers together.
fn speeds(words: &[u64; 97], makers: &[u32]) -> u64
    requires few { length makers.now < 2 ^ 32 }
    ensures value { result ≡ speeds words.now makers.now }
    ensures least { length makers.now ≤ result }
{
    let mut sum = 0;
    'makers: for maker in makers {
        sum += speed(words, *maker);
    }
    sum
}

/// The maker to whom a place belongs, where each has as many as its speed is.
fn with_place(words: &[u64; 97], ready: &[u32], place: u64) -> u32
    requires { 0 < length ready.now }
    ensures { result ≡ with_place words.now (slice_index_or ready.now 0 0) place ready.now }
{
    let mut left = place;
    'makers: for maker in ready {
        let speed = speed(words, *maker);
        if left < speed {
            return *maker;
        }
        left -= speed;
    }
    ready[0]
}

impl Bursts {
    /// Before one turn of sixteen one of those that are ready throws a new speed.
    fn throw_anew(&mut self, ready: &[u32])
        requires some { 0 < length ready.now }
        ensures { self.new ≡ thrown_anew self.old ready.now }
    {
        if below(&mut self.dice, 16) == 0 {
            let maker = thrown(&mut self.dice, ready);
            let word = word(&mut self.dice);
            set_word(&mut self.words, maker, word);
        }
    }

    /// One that the die throws, by their speeds.
    fn throw(&mut self, ready: &[u32]) -> u32
        requires some { 0 < length ready.now }
        requires few { length ready.now < 2 ^ 32 }
        ensures { (result, self.new) ≡ by_speeds self.old ready.now }
    {
        let sum = speeds(&self.words, ready);
        let place = below(&mut self.dice, sum);
        with_place(&self.words, ready, place)
    }

    /// The maker that comes next.
    pub(crate) fn choose(&mut self, ready: &[u32]) -> u32
        requires some { 0 < length ready.now }
        requires few { length ready.now < 2 ^ 32 }
        ensures { (result, self.new) ≡ by_speeds (thrown_anew self.old ready.now) ready.now }
    {
        self.throw_anew(ready);
        self.throw(ready)
    }
}
