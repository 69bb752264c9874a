//! Planes of all configurations, some of them marked.

ghost use Rattle.std.specs.Prelude.{◌≡◌, ◌≢◌, ◌<◌, ◌||◌, ℕ, length, [], false, true, IfOk};
ghost use Rattle.frz_planes.specs.Planes.{has_pair, IsPlaneOf};
ghost use Rattle.frz_plane_game.specs.Spots.{plane_at};
ghost use Rattle.frz_plane_solver.specs.Marks.{AreAllMarked, AreFor, marked_planes};

use frz_board::NoMemory;
use frz_planes::Plane;
use std::alloc::Global;

/// Adds to each plane the pairs of the other one of its configuration, if that is marked.
fn join_marked(planes: &mut [Plane], more: &MarkedPlanes)
    requires planes { length planes.old ≡ length more.now.planes.items }
    requires marks { length more.now.marks.items ≡ length more.now.planes.items }
    ensures { (c : ℕ) → c < length planes.old → IsPlaneOf (plane_at planes.new c)
        (λ a b. has_pair (plane_at planes.old c) a b
        || has_pair (plane_at (marked_planes more.now) c) a b) }
{
    for c in 0..planes.len() {
        if more.marks[c] {
            let mut plane = planes[c];
            plane.union_with(&more.planes[c]);
            planes[c] = plane;
        }
    }
}

/// A plane for each configuration, and a mark at some.
#[derive(Drop)]
pub struct MarkedPlanes {
    pub planes: Vec<Plane>,
    pub marks: Vec<bool>,
}

impl MarkedPlanes {
    /// Empty planes for so many configurations, all marked.
    pub fn new(alloc: Global, configurations: u32) -> Result<MarkedPlanes, NoMemory>
        ensures size { IfOk result (AreFor configurations) }
        ensures marked { IfOk result (AreAllMarked configurations) }
    {
        let many = configurations as usize;
        let Ok(planes) = vec![in alloc; Plane::empty(); many] else {
            return Err(NoMemory);
        };
        let Ok(marks) = vec![in alloc; true; many] else {
            return Err(NoMemory);
        };
        Ok(MarkedPlanes { planes, marks })
    }

    /// Gives the configuration this plane and a mark, if the plane has a pair, and else takes the
    /// mark away.
    pub fn put(&mut self, configuration: u32, plane: &Plane)
        requires planes { configuration < length self.old.planes.items }
        requires marks { configuration < length self.old.marks.items }
        ensures put { IsPlaneOf (plane_at (marked_planes self.new) configuration)
            (has_pair plane.now) }
        ensures others { (k : ℕ) → k ≢ configuration →
            plane_at (marked_planes self.new) k ≡ plane_at (marked_planes self.old) k }
        ensures planes { length self.new.planes.items ≡ length self.old.planes.items }
        ensures marks { length self.new.marks.items ≡ length self.old.marks.items }
    {
        if plane.is_empty() {
            self.unmark(configuration);
            return;
        }
        let i = configuration as usize;
        self.marks[i] = true;
        self.planes[i] = *plane;
    }

    /// Takes the mark of the configuration away.
    pub fn unmark(&mut self, configuration: u32)
        requires { configuration < length self.old.marks.items }
        ensures none { plane_at (marked_planes self.new) configuration ≡ [] }
        ensures others { (k : ℕ) → k ≢ configuration →
            plane_at (marked_planes self.new) k ≡ plane_at (marked_planes self.old) k }
        ensures planes { self.new.planes.items ≡ self.old.planes.items }
        ensures marks { length self.new.marks.items ≡ length self.old.marks.items }
    {
        self.marks[configuration as usize] = false;
    }

    /// Adds to each plane the pairs of the other one of its configuration, if that is marked, and
    /// takes over the marks.
    pub fn join(&mut self, more: &MarkedPlanes)
        requires planes { length self.old.planes.items ≡ length more.now.planes.items }
        requires marks { length self.old.marks.items ≡ length more.now.marks.items }
        requires more { length more.now.marks.items ≡ length more.now.planes.items }
        ensures planes { (c : ℕ) → c < length self.old.planes.items →
            IsPlaneOf (plane_at self.new.planes.items c)
            (λ a b. has_pair (plane_at self.old.planes.items c) a b
            || has_pair (plane_at (marked_planes more.now) c) a b) }
        ensures marks { self.new.marks.items ≡ more.now.marks.items }
        ensures many { length self.new.planes.items ≡ length self.old.planes.items }
    {
        join_marked(&mut self.planes, more);
        self.marks.copy_from_slice(&more.marks);
    }

    /// Is the configuration marked, and has its plane a pair?
    fn has_at(&self, configuration: usize) -> bool
        requires planes { configuration < length self.now.planes.items }
        requires marks { length self.now.marks.items ≡ length self.now.planes.items }
        ensures none { result ≡ false → (a b : ℕ) → a < 64 → b < 64 →
            has_pair (plane_at (marked_planes self.now) configuration) a b ≡ false }
        ensures some { result ≡ true → (a : ℕ) × (b : ℕ) × (a < 64) × (b < 64)
            × (has_pair (plane_at (marked_planes self.now) configuration) a b ≡ true) }
    {
        if !self.marks[configuration] {
            return false;
        }
        self.planes[configuration].next_pair(0).is_some()
    }

    /// Has any of the marked planes a pair?
    pub fn has_any(&self) -> bool
        requires { length self.now.marks.items ≡ length self.now.planes.items }
        ensures none { result ≡ false → (c a b : ℕ) → c < length self.now.planes.items → a < 64 →
            b < 64 → has_pair (plane_at (marked_planes self.now) c) a b ≡ false }
        ensures some { result ≡ true → (c : ℕ) × (a : ℕ) × (b : ℕ)
            × (c < length self.now.planes.items) × (a < 64) × (b < 64)
            × (has_pair (plane_at (marked_planes self.now) c) a b ≡ true) }
    {
        for c in 0..self.planes.len() {
            if self.has_at(c) {
                return true;
            }
        }
        false
    }
}
