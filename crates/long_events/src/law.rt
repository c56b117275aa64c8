// The law of plain lists of events.
ghost use Rattle.std.specs.Prelude.{ℕ, List};
ghost use Rattle.vlog_module.specs.declared.modules.Port.{Port as port_of};
ghost use Rattle.long_events.specs.Plain.{ExtendsPlain};

/// A plain list of events that has no fault is a list of the long form that has none, and stands for the same events, if no input is named
/// `repeat` and the text has fewer than 2^64 - 1 bytes. The call does nothing: its clause is the law. No code of this project calls it: it
/// is for users of the library.
pub fn long_form_extends_plain()
    ensures { (ports : List port_of) (bytes : List ℕ) → ExtendsPlain ports bytes }
{}
