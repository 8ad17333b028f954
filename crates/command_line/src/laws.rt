//! What follows for the words. The functions do nothing: each contract is a law.

ghost use Rattle.command_line.specs.Allowed.{JobsAreAllowed};
ghost use Rattle.command_line.specs.Known.{TakenWordsAreJob, CheckIsTaken, GraphIsTaken, SimIsTaken, ReplayIsTaken, SettleIsTaken, GenIsTaken, LratIsTaken, CertIsTaken, InductIsTaken, ResetIsTaken, CyclesAreTaken, AfterIsTaken, AssumedIsTaken, CheckSettlesIsTaken, ReplaySettlesIsTaken, ReplayResetIsTaken, ReplayResetIsNoJob, SettlesIsRefused, AssumedIsRefused, OtherModeIsNoJob, OtherFormIsNoJob, ResetIsNoJob, CyclesAreNoJob, AfterIsNoJob, SignalsAreTaken, PairIsTaken, PairIsNoJob, PairsAreTaken, PairsAreNoJob};

/// Words that `clap`'s definition for the command takes are a job wherever their mode is `plain` or `event` and `--reset` stands
/// neither with `event` nor with `--expose` or `--settles` of `check`, and `--cycles` only with `--reset`, and `--after` only with `--cycles`, and `--pair` without `--settles`, `--assume`, `--cycles` and `--after`, or they name the subcommand `gen`, `lrat` or `induct`, which have no mode, or `cert` with
/// the form `cnf` or `lrat`. So `job` never refuses such words.
pub fn taken_words_are_job()
    ensures { TakenWordsAreJob }
{}

/// A job of words allows at most 200,000 conflicts for a query, and cuts no latch open where runs begin with initial values.
pub fn jobs_are_allowed()
    ensures { JobsAreAllowed }
{}

/// Words of the subcommands that meet the premises of `taken_words_are_job`, some with `--reset` or `--assume`.
pub fn words_are_taken()
    ensures of_check { CheckIsTaken }
    ensures of_graph { GraphIsTaken }
    ensures of_sim { SimIsTaken }
    ensures of_replay { ReplayIsTaken }
    ensures of_gen { GenIsTaken }
    ensures of_lrat { LratIsTaken }
    ensures of_cert { CertIsTaken }
    ensures of_induct { InductIsTaken }
    ensures of_reset { ResetIsTaken }
    ensures of_assumed { AssumedIsTaken }
{}

/// The same of `settle`, of `check` and `replay` with `--settles`, of `replay` with `--reset`, of `check` with `--cycles`, with `--after`, with `--pair` and with `--pairs`, and of
/// `induct` with `--signals`.
pub fn further_words_are_taken()
    ensures of_settle { SettleIsTaken }
    ensures of_check { CheckSettlesIsTaken }
    ensures of_replay { ReplaySettlesIsTaken }
    ensures of_replay_reset { ReplayResetIsTaken }
    ensures of_cycles { CyclesAreTaken }
    ensures of_after { AfterIsTaken }
    ensures of_signals { SignalsAreTaken }
    ensures of_pair { PairIsTaken }
    ensures of_pairs { PairsAreTaken }
{}

/// Words that `clap`'s definition doesn't take: `--assume` without a path behind it, or twice; `--settles` behind `settle`.
pub fn refused_words_are_no_job()
    ensures of_assumed { AssumedIsRefused }
    ensures of_settles { SettlesIsRefused }
{}

/// Words that are taken and are no job: they have another mode or another form, or `--reset`, `--cycles`, `--after`, `--pair` or `--pairs` beside what
/// refuses it.
pub fn taken_words_are_no_job()
    ensures of_mode { OtherModeIsNoJob }
    ensures of_form { OtherFormIsNoJob }
    ensures of_clash { ResetIsNoJob }
    ensures of_cycles { CyclesAreNoJob }
    ensures of_after { AfterIsNoJob }
    ensures of_replay { ReplayResetIsNoJob }
    ensures of_pair { PairIsNoJob }
    ensures of_pairs { PairsAreNoJob }
{}
