ghost use Rattle.slabs.specs.Laws.{Laws};

/// The laws of slabs hold: chunks lie apart and inside their pages, and each is free, granted or holds one record.
/// There is nothing to do at run time.
pub fn laws_stand()
    ensures { Laws }
{}
