//! What holds of the text of a stimulus. The function does nothing: its contract is a law.

ghost use Rattle.std.specs.Prelude.{All};
ghost use Rattle.witness_report.specs.Text.{stimulus_text};
ghost use Rattle.witness_report.specs.Form.{IsName, IsForm};

use crate::stimulus::Stimulus;

/// The text of a stimulus is the form of its names and rows, so that reading it gives the stimulus back, where no name
/// is empty or holds a blank or a line feed.
pub fn reads_back(s: &Stimulus)
    ensures { All IsName s.now.names → IsForm (stimulus_text s.now.names s.now.rows) s.now.names s.now.rows }
{
    let _ = &s.rows;
}
