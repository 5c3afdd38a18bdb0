//! What a snapshot reads of the settings, which there are none of before the first Restart.
ghost use Rattle.std.specs.Prelude.{◌≡◌, option_map};
ghost use Rattle.fts_board.specs.Snapshot.{default_limit_of, vo_of};

use fts_tables::Settings;

/// The limit of links that aren't listed.
pub fn default_limit_of(settings: Option<&Settings>) -> u32
    ensures { result ≡ default_limit_of (option_map (λ settings. settings.now) settings.entry) }
{
    match settings {
        Some(settings) => settings.default_max_active,
        None => 0,
    }
}

/// The name of the VO.
pub fn vo_of(settings: Option<&Settings>) -> &str
    ensures { result.now ≡ vo_of (option_map (λ settings. settings.now) settings.entry) }
{
    match settings {
        Some(settings) => settings.vo.as_str(),
        None => "",
    }
}
