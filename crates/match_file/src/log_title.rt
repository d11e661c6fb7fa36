ghost use Rattle.std.specs.Prelude.{◌≡◌, IfOk};
ghost use Rattle.match_log.specs.Lines.{header_line};

use dealer_kind::Config;
use match_log::header;
use std::alloc::{AllocError, Global};

/// The first line of each log of a match, with its line feed.
pub fn log_header(alloc: Global, config: &Config) -> Result<Vec<u8>, AllocError>
    ensures { IfOk result (λ text. text.items ≡ header_line config.now.setting.title.name config.now.setting.title.game config.now.setting.title.hands) }
{
    let mut text = Vec::new(alloc);
    header(
        &mut text,
        config.name().as_bytes(),
        config.game_word(),
        config.hands(),
    )?;
    Ok(text)
}
