//! The law of printing and reading, the contract of a function without effect.
ghost use Rattle.std.specs.Prelude.{◌≡◌, ◌≢◌, List, Result, Ok, Err};
ghost use Rattle.nano_spec.specs.declared.commands.Command.{Command};
ghost use Rattle.nano_spec.specs.Cutting.{AreCommands};
ghost use Rattle.nano_spec.specs.Printing.{print};
ghost use Rattle.trace_text.specs.declared.fault.TextFault.{TextFault};
ghost use Rattle.trace_text.specs.declared.fault.TextFault.TheVariants.{Memory};
ghost use Rattle.trace_text.specs.Text.{ReadsText};

/// Printed commands read back as the same commands.
pub fn printing_and_reading()
    ensures { (commands : List Command) (answer : Result (List Command) TextFault) →
        AreCommands commands → ReadsText (print commands) answer → answer ≢ Err Memory → answer ≡ Ok commands }
{
    nano_spec::printed_is_read();
}
