//! The law of what is read of a delta's column. The function does nothing: its clause is the law, proved of the definitions.
ghost use Rattle.dg_records.specs.DeltaFronts.{DeltasAreToldByRead};

/// Where what is read of a delta's column is read as a delta, it is the whole column; where it is damaged, the whole column
/// is.
pub fn law_deltas_are_told_by_read()
    ensures { DeltasAreToldByRead }
{}
