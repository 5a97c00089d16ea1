// Sets of numbers below 512 in a list of 64-bit words: 8 words a set, a bit for each number.
#![tactic(auto)]

ghost use Rattle.bitsets.specs.Bitsets.{NextIn, Flipped};

// The lowest number of set `s` from `from` on, below `end`; `end` if there is none. Past the list no number is in a set.
pub fn next_in(list: &[u64], s: u16, from: u16, end: u16) -> u16
    ensures { NextIn list.now s from end result }
{
    let first = 8 * (s as usize);
    let stop = end as usize;
    let mut j = from as usize;
    while j < stop {
        let k = first + j / 64;
        if list.len() <= k {
            return end;
        }
        let rest = list[k] >> (j % 64);
        if rest != 0 {
            let found = j + u64::trailing_zeros(rest) as usize;
            if stop <= found {
                return end;
            }
            return found as u16;
        }
        j = 64 * (j / 64 + 1);
    }
    end
}

// Number i joins set `s`, or leaves it if it is there.
pub fn flip(list: &mut [u64], s: u16, i: u16)
    ensures { Flipped s i list.old list.new }
{
    if i < 512 {
        let at = 8 * (s as usize) + (i as usize) / 64;
        if at < list.len() {
            list[at] = list[at] ^ (1 << (i % 64));
        }
    }
}
