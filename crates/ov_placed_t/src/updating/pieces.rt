//! A file that is turned piece by piece.
ghost use Rattle.std.specs.Prelude.{◌≤◌};

use super::master;
use ov_moves::Turn;
use ov_recoat::Recoat;
use ov_state::Rewrite;
use ov_surface::over_encrypt;
use ov_tokens::{Layer, Surface};
use std::test::Fail;

const REWRITES: [Rewrite; 2] = [
    Rewrite {
        file: 2,
        length: 40,
        old: None,
        new: Some(1),
    },
    Rewrite {
        file: 5,
        length: 40,
        old: Some(3),
        new: Some(4),
    },
];

fn coat(surface: u32, file: u32, bytes: &mut [u8; 40]) {
    over_encrypt(&Surface::key_of(&master(), surface), file, 0, bytes);
}

// The file in two pieces, of which the first has so many bytes.
fn turned_in_two(file: u32, first: usize, bytes: &mut [u8; 40])
    requires { first ≤ 40 }
{
    let master = master();
    let recoat = Recoat::new(&master, &REWRITES);
    let (front, back) = bytes.split_at_mut(first);
    recoat.turn(file, 0, front);
    recoat.turn(file, first as u32, back);
}

#[test]
fn a_new_file_gets_its_coat(rt: HostRuntime) -> Result<(), Fail> {
    let mut coated = [7_u8; 40];
    coat(1, 2, &mut coated);
    for first in 0..41 {
        let mut bytes = [7_u8; 40];
        turned_in_two(2, first, &mut bytes);
        assert!(rt; bytes == coated, "{first}");
    }
    Ok(())
}

#[test]
fn one_coat_comes_off_and_another_is_laid(rt: HostRuntime) -> Result<(), Fail> {
    let mut bytes = [7_u8; 40];
    coat(3, 5, &mut bytes);
    turned_in_two(5, 16, &mut bytes);
    let mut coated = [7_u8; 40];
    coat(4, 5, &mut coated);
    assert!(rt; bytes == coated);
    Ok(())
}

#[test]
fn a_file_without_a_rewrite_stays(rt: HostRuntime) -> Result<(), Fail> {
    let mut bytes = [7_u8; 40];
    turned_in_two(3, 16, &mut bytes);
    assert!(rt; bytes == [7_u8; 40]);
    Ok(())
}
