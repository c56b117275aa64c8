// Asking for help.
ghost use Rattle.std.specs.Prelude.{◌≡◌, map, string_bytes};
ghost use Rattle.tool_run.specs.Tasks.{asks_for_help};

/// Whether the arguments ask a tool for its help: its name and `--help`, and no other word.
pub fn asks_for_help(args: &[String]) -> bool
    ensures { result ≡ asks_for_help (map string_bytes args.now) }
{
    match args {
        [_, word] => word.as_str() == "--help",
        _ => false,
    }
}
