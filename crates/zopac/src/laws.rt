//! Laws of the definitions, each the contract of a function that does nothing.
ghost use Rattle.std.specs.Prelude.{◌≡◌};
ghost use Rattle.zber.specs.Elements.{Element};
ghost use Rattle.zopac.specs.declared.opac.OpacRecord.{OpacRecord};
ghost use Rattle.zopac.specs.Joined.{JoinedLaw};
ghost use Rattle.zopac.specs.Opacs.{WritesOpac, OpacReadBack};

/// An element stands for at most one OPAC record.
pub fn one_record()
    ensures { (v w : OpacRecord) (n : Element) → WritesOpac v n → WritesOpac w n → v ≡ w }
{}

/// Reading the element that was built of an OPAC record returns this record, unless no memory is found.
pub fn read_back()
    ensures { OpacReadBack }
{}

/// What is joined are the texts that have anything, with the separator between each two.
pub fn joined_law()
    ensures { JoinedLaw }
{}
