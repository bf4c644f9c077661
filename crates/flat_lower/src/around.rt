/// What stands around a statement: neither loop nor switch, or the innermost of them, a loop, a switch in no
/// loop or one in a loop.
#[derive(Clone, Copy, Debug, PartialEq, Eq)]
pub enum Around {
    Nowhere,
    Loop,
    Switch,
    SwitchInLoop,
}
