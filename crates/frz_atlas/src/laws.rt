//! Laws on files of tables that are exact over each other. Each is the contract of a function that
//! does nothing.
ghost use Rattle.std.specs.Prelude.{◌≡◌, ℕ, List, map, Ok};
ghost use Rattle.frz_backs.specs.Links.{AreExact, backs_of};
ghost use Rattle.frz_atlas.specs.Behind.{AreJudged, TableBytes, backs_in, link_of};
ghost use Rattle.frz_atlas.specs.Held.{all_held};
ghost use Rattle.frz_atlas.specs.Loading.{opened_all};

/// Files that were judged exact, from the left, hold exact tables, each over those before it where
/// it leans on them.
pub fn judged_tables_are_exact()
    ensures exact { (tables : List TableBytes) → AreJudged tables → AreExact (map link_of tables) }
    ensures backs { (tables : List TableBytes) → backs_of (map link_of tables) ≡ backs_in tables }
{}

/// Such files open as these tables also where they are loaded without a check.
pub fn judged_tables_open()
    ensures { (tables : List TableBytes) → AreJudged tables
        → opened_all (all_held tables) ≡ Ok tables }
{}
