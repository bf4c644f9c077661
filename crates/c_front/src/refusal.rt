use c_lex::LexFault;
use c_parse::ParseFault;
use c_pre::PreFault;
use c_type::TypeFault;

/// Why a text of C has no typed program: the fault of the first stage that refuses it. The fault is
/// never want of memory, which is a refusal of its own.
#[derive(Debug, Drop)]
pub enum Refusal {
    Lex(LexFault),
    Directive(PreFault),
    Parse(ParseFault),
    Typing(TypeFault),
    Memory,
}
