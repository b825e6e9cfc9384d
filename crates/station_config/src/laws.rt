// What holds of every site, as the contract of a function that does nothing.
ghost use Rattle.std.specs.Prelude.{◌≡◌, ℕ, List, Ok};
ghost use Rattle.station_config.specs.Drafts.{site_told};
ghost use Rattle.station_config.specs.Validity.{IsSite};
ghost use Rattle.station_config.specs.declared.site.Site.{Site};

/// Each valid site is one that some text says.
#[tactic(auto, using(crate::proofs::SiteTexts::each_is_told))]
pub fn each_valid_site_is_told()
    ensures { (site : Site) → IsSite site → (text : List ℕ) × (site_told text ≡ Ok site) }
{}
