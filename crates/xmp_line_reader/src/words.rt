use xmp_reader::Reader;
// The words of directives' lines.
ghost use Rattle.std.specs.Prelude.{◌≡◌};
ghost use Rattle.xmp_line_reader.specs.Lines.{mapping_word_next, directive_word_next};

/// The words of the lines of mappings.
#[derive(Clone, Copy, Debug, PartialEq, Eq)]
pub enum MappingWord {
    Nodes,
    Template,
    Distribute,
    Align,
    Shadow,
}

/// The words of the lines of other directives.
#[derive(Clone, Copy, Debug, PartialEq, Eq)]
pub enum DirectiveWord {
    Loop,
    Reflect,
    Barrier,
    Bcast,
    Gmove,
    Task,
    Tasks,
}

/// The word of a mapping's line, where one stands next.
pub fn mapping_word(r: Reader<'_>) -> Option<MappingWord>
    ensures { result ≡ mapping_word_next r.entry.tokens.now }
{
    if r.is_spelled(b"nodes") {
        Some(MappingWord::Nodes)
    } else if r.is_spelled(b"template") {
        Some(MappingWord::Template)
    } else if r.is_spelled(b"distribute") {
        Some(MappingWord::Distribute)
    } else if r.is_spelled(b"align") {
        Some(MappingWord::Align)
    } else if r.is_spelled(b"shadow") {
        Some(MappingWord::Shadow)
    } else {
        None
    }
}

/// The word of another directive's line, where one stands next.
pub fn directive_word(r: Reader<'_>) -> Option<DirectiveWord>
    ensures { result ≡ directive_word_next r.entry.tokens.now }
{
    if r.is_spelled(b"loop") {
        Some(DirectiveWord::Loop)
    } else if r.is_spelled(b"reflect") {
        Some(DirectiveWord::Reflect)
    } else if r.is_spelled(b"barrier") {
        Some(DirectiveWord::Barrier)
    } else if r.is_spelled(b"bcast") {
        Some(DirectiveWord::Bcast)
    } else if r.is_spelled(b"gmove") {
        Some(DirectiveWord::Gmove)
    } else if r.is_spelled(b"task") {
        Some(DirectiveWord::Task)
    } else if r.is_spelled(b"tasks") {
        Some(DirectiveWord::Tasks)
    } else {
        None
    }
}
