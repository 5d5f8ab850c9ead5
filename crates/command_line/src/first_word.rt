//! The command that the first argument names.
ghost use Rattle.std.specs.Prelude.{◌≡◌, map};
ghost use Rattle.command_line.specs.CommandLine.{is_check, is_run, is_serve, is_version};

/// Whether the first argument is `run`.
pub fn is_run(args: &[&str]) -> bool
    ensures { result ≡ is_run (map (λ s. s.now) args.now) }
{
    match args {
        [first, ..] => *first == "run",
        [] => false,
    }
}

/// Whether the first argument is `serve`.
pub fn is_serve(args: &[&str]) -> bool
    ensures { result ≡ is_serve (map (λ s. s.now) args.now) }
{
    match args {
        [first, ..] => *first == "serve",
        [] => false,
    }
}

/// Whether the first argument is `check`.
pub fn is_check(args: &[&str]) -> bool
    ensures { result ≡ is_check (map (λ s. s.now) args.now) }
{
    match args {
        [first, ..] => *first == "check",
        [] => false,
    }
}

/// Whether the first argument asks for the version: `version`, `--version` or `-V`.
pub fn is_version(args: &[&str]) -> bool
    ensures { result ≡ is_version (map (λ s. s.now) args.now) }
{
    match args {
        [first, ..] => *first == "version" || *first == "--version" || *first == "-V",
        [] => false,
    }
}
