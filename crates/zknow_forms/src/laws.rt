//! Laws of the definitions. Each is the contract of a function that does nothing.
ghost use Rattle.zknow_forms.specs.Forms.{AllFormLaws, AllViewLaws};

/// Facts may be written in parts, if those of the second part are records, and each is at a higher position than each
/// record of the first: their text is that of the parts, one after the other. If the first has no records, its head and
/// the text of the records are the whole text, and what is told of the records is told of all.
pub fn form_laws()
    ensures { AllFormLaws }
{}

/// What is told of facts that are only measured is what is told of their view. If the columns of the view and the
/// numbers of its positions are those that are told of the facts, its whole text is the view of the facts.
pub fn view_laws()
    ensures { AllViewLaws }
{}
