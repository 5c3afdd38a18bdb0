//! Settings whose rules aren't looked at yet: the values that a document gives.
//! Contracts see a draft as the plain record of settings; it becomes `Settings` where it keeps every rule (`rules`).
ghost use Rattle.std.specs.Prelude.{◌≡◌, [], ◌∷◌};
ghost use Rattle.toml.specs.Data.{get};
ghost use Rattle.toml.specs.View.{view};
ghost use Rattle.fts_tables.specs.SettingsData.{IsSettings, default_activity};
ghost use Rattle.fts_tables.specs.FirstFault.{unless};
ghost use Rattle.fts_config.specs.Faults.{Gives};
ghost use Rattle.fts_config.specs.Reading.{settings_in, bad_url, weights_in};
ghost use Rattle.fts_config.specs.Keys.{name_of};

use crate::reading::{
    DEFAULT_LINK_LIMIT, DEFAULT_WEIGHT, DEFAULT_WORKERS, number_or, read_all, read_label, text_or,
};
use crate::tables::tables_of;
use crate::{SettingKey, SettingsFault};
use fts_tables::limits::DEFAULT_ACTIVITY;
use fts_tables::{Endpoint, Items, Label, LinkRule, Settings, Weight};
use std::alloc::Global;
use std::marker::Model;
use toml::Value;

/// The values that a document gives.
#[derive(Drop)]
pub struct Draft {
    pub vo: Label,
    pub workers: u32,
    pub default_max_active: u32,
    pub endpoints: Items<Endpoint>,
    pub links: Items<LinkRule>,
    pub weights: Items<Weight>,
}

impl Model for Draft {
    ghost use Rattle.fts_tables.specs.SettingsData.{SettingsData};

    ghost Value = { SettingsData };

    ghost view = { λ d. record {
      vo = d.vo;
      workers = d.workers;
      default_max_active = d.default_max_active;
      endpoints = d.endpoints;
      links = d.links;
      weights = d.weights;
    } };
}

fn default_weights(alloc: Global) -> Result<Items<Weight>, SettingsFault>
    ensures { Gives result (unless None (record { name = default_activity; weight = 1 } ∷ [])) }
{
    let name = read_label(alloc, DEFAULT_ACTIVITY)?;
    let weight = Weight {
        name,
        weight: DEFAULT_WEIGHT,
    };
    let mut weights = Items::new(alloc);
    match weights.push(weight) {
        Ok(()) => Ok(weights),
        Err(_) => Err(SettingsFault::Memory),
    }
}

fn read_weights(alloc: Global, document: &Value) -> Result<Items<Weight>, SettingsFault>
    ensures { Gives result (unless None (weights_in (get (name_of SettingKey.Activity) (view document.now)) (view document.now))) }
{
    match document.get(SettingKey::Activity.name()) {
        Some(_) => read_all(alloc, tables_of(document, SettingKey::Activity)),
        None => default_weights(alloc),
    }
}

/// The values that a document gives, or the fault of its first URL that names no endpoint.
#[tactic(auto, unfolding(crate::specs::Reading::settings_in, crate::specs::Reading::bad_url))]
pub fn read_draft(alloc: Global, document: &Value) -> Result<Draft, SettingsFault>
    ensures { Gives result (unless (bad_url (view document.now)) (settings_in (view document.now))) }
{
    let endpoints = read_all(alloc, tables_of(document, SettingKey::Storage))?;
    let links = read_all(alloc, tables_of(document, SettingKey::Link))?;
    let weights = read_weights(alloc, document)?;
    let vo = read_label(alloc, text_or(document, SettingKey::Vo, ""))?;
    Ok(Draft {
        vo,
        workers: number_or(document, SettingKey::Workers, DEFAULT_WORKERS),
        default_max_active: number_or(document, SettingKey::DefaultMaxActive, DEFAULT_LINK_LIMIT),
        endpoints,
        links,
        weights,
    })
}

impl Draft {
    /// The settings, which it is where it keeps their rules.
    pub fn into_settings(self) -> Settings
        requires { IsSettings self }
        ensures { result ≡ self }
    {
        Settings {
            vo: self.vo,
            workers: self.workers,
            default_max_active: self.default_max_active,
            endpoints: self.endpoints,
            links: self.links,
            weights: self.weights,
        }
    }
}
