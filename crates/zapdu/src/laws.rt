//! Laws of the definitions, each the contract of a function that does nothing.
ghost use Rattle.std.specs.Prelude.{◌≡◌};
ghost use Rattle.zber.specs.Elements.{Element};
ghost use Rattle.zapdu.specs.declared.apdu.Apdu.{Apdu};
ghost use Rattle.zapdu.specs.declared.productions.diagnostic.DiagRec.{DiagRec};
ghost use Rattle.zapdu.specs.declared.productions.record.Record.{Record};
ghost use Rattle.zapdu.specs.Productions.Diagnostics.{WritesDiag};
ghost use Rattle.zapdu.specs.ReadingBack.{ApduReadBack, DiagReadBack, RecordReadBack};
ghost use Rattle.zapdu.specs.Productions.Records.{WritesRecord};
ghost use Rattle.zapdu.specs.Writes.{Writes, OneRefusal};

/// An element stands for at most one APDU.
pub fn one_value()
    ensures { (v w : Apdu) (n : Element) → Writes v n → Writes w n → v ≡ w }
{}

/// An element stands for at most one record.
pub fn one_record()
    ensures { (v w : Record) (n : Element) → WritesRecord v n → WritesRecord w n → v ≡ w }
{}

/// An element stands for at most one diagnostic.
pub fn one_diagnostic()
    ensures { (v w : DiagRec) (n : Element) → WritesDiag v n → WritesDiag w n → v ≡ w }
{}

/// An element that stands for an APDU is not `NotApdu`. No element is both `NotApdu` and `Malformed`, and a malformed
/// one has one kind and one place.
pub fn one_refusal()
    ensures { OneRefusal }
{}

/// Reading the element that was built of an APDU returns this APDU, unless no memory is found.
pub fn apdu_read_back()
    ensures { ApduReadBack }
{}

/// Reading the element that was built of a record returns this record.
pub fn record_read_back()
    ensures { RecordReadBack }
{}

/// Reading the element that was built of a diagnostic returns this diagnostic.
pub fn diagnostic_read_back()
    ensures { DiagReadBack }
{}
