//! The counter of steps over a brand.
ghost use Rattle.std.specs.Prelude.{◌≡◌, ◌<◌};

use frz_steps::Steps;
use std::marker::Brand;
use std::sync::ledger::{Blank, Ledger};

fn take_two_steps<L: Ledger>(blank: Blank)
    requires name { blank.name ≡ L.name }
    requires parts { blank.parts ≡ L.parts }
    requires some { 0 < blank.parts }
{
    let mut steps = Steps::<L>::new(blank);
    steps.tick();
    steps.tick();
}

#[test]
fn counts_over_a_brand() {
    let blank = Blank::new(1);
    take_two_steps::<Brand>(blank);
}
