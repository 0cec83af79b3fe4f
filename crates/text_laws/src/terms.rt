//! The laws of numbers and terms.
ghost use Rattle.text_laws.specs.TermLaws.{NumberLaws, ReadingLaws, ByteLaws};

/// The laws of the texts of numbers and terms; the call does nothing.
pub fn term_text_laws()
    // Each number that is written is read again.
    ensures numbers { NumberLaws }
    // The text of a term is read as the term, and terms with one text are one.
    ensures reading { ReadingLaws }
    // Which bytes a text has, and how many.
    ensures bytes { ByteLaws }
{}
