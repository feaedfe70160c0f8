//! Laws about the definitions. Each function does nothing; its contract is the law.

ghost use Rattle.mpw_columns_keys.specs.Firsts.{SharedListsHaveTheFirst};
ghost use Rattle.mpw_columns_keys.specs.Laws.{TestDecidesOrder};

/// Keys each of which comes before the next one are in order, and keys in order pass that test.
pub fn test_decides_order()
    ensures { TestDecidesOrder }
{}

/// Let columns share lists, displaced. Then what is joined from the first keys of the lists has the first markers of each rule of what is joined from the
/// columns' whole lists, and the numbers are those of the whole.
pub fn shared_lists_have_the_first()
    ensures { SharedListsHaveTheFirst }
{}
