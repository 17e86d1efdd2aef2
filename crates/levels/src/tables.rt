// What a level of a store tells.
ghost use Rattle.levels.specs.Tables.{Tables};

// A level tells which names it has and their values, and nothing of the order in which they came: names rise from an empty table on, and
// two rising tables that give each name the same value are equal. (Nothing is done; what counts is the statement.)
pub fn tables_agree<V>()
    ensures law { Tables V }
{}
