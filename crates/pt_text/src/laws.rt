ghost use Rattle.pt_text.specs.Laws.{HaveOneWord};

/// Bytes are read from their own word, and from no other.
pub fn bytes_have_one_word()
    ensures { HaveOneWord }
{}
