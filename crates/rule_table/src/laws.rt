//! Laws over the definitions that the keys cite: no code stands behind them.
ghost use Rattle.rule_table.specs.Laws.{KeyOfThree, SameInside, SameCovers};

/// Values of one key are inside the same prefixes. So records whose sources have one key, and whose
/// destinations have one, are covered by the same rules.
pub fn same_keys()
    ensures inside { SameInside }
    ensures covers { SameCovers }
{}

/// Up to three values have a key, and more have none.
pub fn key_of_three()
    ensures { KeyOfThree }
{}
