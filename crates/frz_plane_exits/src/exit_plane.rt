//! The planes of exits.

ghost use Rattle.std.specs.Prelude.{◌≡◌, ◌<◌, ◌==◌, ◌&&◌, length, IfSome, OnOk};
ghost use Rattle.std.specs.List.{HoldsAt};
ghost use Rattle.frz_planes.specs.Planes.{IsPlaneOf};
ghost use Rattle.frz_plane_exits.specs.Adding.{Adds, IsPair};

use frz_exits::Value;
use frz_planes::Plane;
use std::alloc::AllocError;

/// The pairs at which steps leave the set to positions of this value. The steps are all free, or
/// none of them is.
#[derive(Clone, Copy)]
pub struct ExitPlane {
    pub value: Value,
    pub free: bool,
    pub plane: Plane,
}

/// Where the plane of this value and this freedom is.
fn place_of(exits: &[ExitPlane], value: Value, free: bool) -> Option<usize>
    ensures { IfSome result (λ place. (place < length exits.now)
        × HoldsAt (λ exit. (exit.value ≡ value) × (exit.free ≡ free)) exits.now place) }
{
    exits
        .iter()
        .position(|exit| exit.value == value && exit.free == free)
}

/// The plane of this pair alone.
fn plane_of(a: u8, b: u8) -> Plane
    requires white { a < 64 }
    requires black { b < 64 }
    ensures { IsPlaneOf result (λ x y. x == a && y == b) }
{
    let mut plane = Plane::empty();
    plane.put(a, b);
    plane
}

/// Adds the pair to the plane of this value and this freedom.
pub(crate) fn add_pair(
    exits: &mut Vec<ExitPlane>,
    value: Value,
    free: bool,
    a: u8,
    b: u8,
) -> Result<(), AllocError>
    requires white { a < 64 }
    requires black { b < 64 }
    ensures { OnOk result (Adds exits.old.items exits.new.items (IsPair value free a b)) }
{
    match place_of(exits, value, free) {
        None => {
            let plane = plane_of(a, b);
            exits.push(ExitPlane { value, free, plane })?;
        }
        Some(place) => exits[place].plane.put(a, b),
    }
    Ok(())
}
