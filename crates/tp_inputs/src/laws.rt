// Laws of inputs.
ghost use Rattle.tp_inputs.specs.Laws.{EachTextIsJudged, OneTable, OneFirstFault, NoFaultyTable, RefusedValuesHaveTheirCause, TablesAreWithin, ConvertedIsTheTable, TablesEndWithin};

/// A text is exactly one table of inputs, or has exactly one first fault. The causes for which a value is refused are those of
/// reading a value, and the values of a table are within the limits.
pub fn texts_have_one_table()
    ensures some { EachTextIsJudged }
    ensures table { OneTable }
    ensures fault { OneFirstFault }
    ensures never_both { NoFaultyTable }
    ensures refused { RefusedValuesHaveTheirCause }
    ensures within { TablesAreWithin }
{}

/// What is written of the table of a text is read as that table, where its rows end at the last state that a range may name or
/// before it; and so they do, where the text has no more bytes than that.
pub fn converted_is_the_table()
    ensures same { ConvertedIsTheTable }
    ensures within { TablesEndWithin }
{}
