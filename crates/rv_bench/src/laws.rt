//! Laws of scripts for every image, setup and list of lines, for the crates above to cite. Each is proved about the definitions in `specs/`.

ghost use Rattle.rv_bench.specs.Declassification.{ScriptDeclassificationLaw, SecretDeclassificationLaw};
ghost use Rattle.rv_bench.specs.HostInfluence.{ScriptEventsLaw, ScriptInfluenceLaw};
ghost use Rattle.rv_bench.specs.Integrity.{ScriptIntegrityLaw};
ghost use Rattle.rv_bench.specs.Noninterference.{ScriptNoninterferenceLaw, SecretNoninterferenceLaw};
ghost use Rattle.rv_bench.specs.SecretScript.{SecretScriptLaw};
ghost use Rattle.rv_bench.specs.TwinLaws.{TwinLaw};

/// States integrity: every part of a script preserves each enclave that it leaves undisturbed.
pub const fn integrity()
    ensures { ScriptIntegrityLaw }
{}

/// States noninterference. In `script`, take a part of a script that avoids an enclave, and neither steps nor shows its hart. Every bench that is
/// equivalent except for that enclave replies the same to it, byte for byte, and is equivalent again after it.
///
/// `secret` is about two inputs that differ only in the bytes that lines of the script poke into the region of an enclave. From there on, all other
/// lines must avoid the enclave and the hart on which it runs. The outputs are then equal. The contents of the region when the enclave was created are
/// not protected, since the measurement reveals them.
pub const fn noninterference()
    ensures script { ScriptNoninterferenceLaw }
    ensures secret { SecretNoninterferenceLaw }
{}

/// States noninterference with declassification. In `script`, the rest of a script may run an enclave, and another script may poke and set other secrets
/// of it. If the enclave hands over the same in both, the observations of the replies are equal.
///
/// `secret` is about two inputs that differ so. The observations leave out the number of steps of the enclave, the state of its hart, and the registers
/// that no world reads.
pub const fn noninterference_with_declassification()
    ensures script { ScriptDeclassificationLaw }
    ensures secret { SecretDeclassificationLaw }
{}

/// States the theorems about a twin run. The two benches are equivalent except for the slot until it is entered. The two replies to each line that both
/// benches executed are then equal. Every part of what is executed preserves each enclave that it leaves undisturbed: in the first script, and in both
/// benches in the second.
pub const fn twin_benches()
    ensures { TwinLaw }
{}

/// States how the host influences an enclave, for two scripts with unlike images, setups and lines. From any line of each on, let an enclave be at the
/// same point of its life in both. Its own steps are the same in both, as long as the bytes of its window that they read are equal. The benches satisfy
/// all other premises of the law of commands, since each starts from an image.
pub const fn host_influences_through_window()
    ensures { ScriptInfluenceLaw }
{}

/// States that every list of steps and of changes of timer lines is that of the lines of a script.
pub const fn any_events_are_scripts()
    ensures { ScriptEventsLaw }
{}

/// States a closed instance of declassification from input to output. The image, the lines and the steps are computed. In two inputs an enclave is
/// interrupted with a secret in a0 and resumed. The observed outputs are equal.
pub const fn closed_script()
    ensures { SecretScriptLaw }
{}
