// What holding and mapping have in common.
ghost use Rattle.search.specs.Mapping.{HeldWhereMapped, HeldByGeneral};

// A query that holds in a list holds in every list into which that one maps.
pub fn held_where_mapped()
    ensures { HeldWhereMapped }
{}

// Atoms that hold in other atoms hold wherever those do.
pub fn held_by_general()
    ensures { HeldByGeneral }
{}
