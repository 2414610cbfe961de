//! The words of a number, from which the commands of a workload are drawn.
ghost use Rattle.std.specs.Prelude.{◌≡◌, ◌+◌, ◌*◌, ◌<◌, ◌^◌};
ghost use Rattle.ov_script.specs.WordPlace.{WordPlace, generator};
ghost use Rattle.ov_script.specs.Workload.{drawn_at, kind_of};

use crate::drawn::{Drawn, Kind};
use rand_chacha::ChaCha20Rng;
use rand_core::SeedableRng;
use rand_core::utils::NextWord;
use std::marker::Model;

fn kind(first: u32) -> Kind
    ensures { result ≡ kind_of first }
{
    match first % 8 {
        0 | 1 => Kind::Creates,
        2 | 3 => Kind::Grants,
        4 => Kind::Revokes,
        5 | 6 => Kind::Reads,
        _ => Kind::Lists,
    }
}

fn generator_of(number: u64) -> ChaCha20Rng
    ensures { result ≡ generator number 0 }
{
    let mut seed = [0; 32];
    seed[..8].copy_from_slice(&number.to_le_bytes());
    ChaCha20Rng::from_seed(seed)
}

/// The words of a number, of which each command takes four.
#[derive(Drop)]
pub struct Words {
    rng: ChaCha20Rng,
    number: u64,
    drawn: u32,
}

impl Model for Words {
    ghost Value = { WordPlace };

    ghost view = { λ w. record { number = w.number; drawn = w.drawn } };

    ghost invariant = { λ w. w.rng ≡ generator w.number (4 * w.drawn) };
}

impl Words {
    /// The words of this number, from the first on.
    pub fn new(number: u64) -> Words
        ensures { result ≡ record { number = number; drawn = 0 } }
    {
        Words {
            rng: generator_of(number),
            number,
            drawn: 0,
        }
    }

    /// What the next four words say. The fourth says nothing, and is drawn all the same.
    pub fn draw(&mut self) -> Drawn
        requires { self.old.drawn + 1 < 2 ^ 32 }
        ensures drawn { result ≡ drawn_at self.old.number self.old.drawn }
        ensures next { self.new ≡ record self.old { drawn = self.old.drawn + 1 } }
    {
        let kind = kind(self.rng.next_word());
        let who = self.rng.next_word();
        let what = self.rng.next_word();
        self.rng.next_word();
        self.drawn += 1;
        Drawn { kind, who, what }
    }
}
