//! What the arguments ask for.
ghost use Rattle.std.specs.Prelude.{◌≡◌, ◌≤◌, IfOk, IfSome, option_map};
ghost use Rattle.run_settings.specs.Settings.{AreWithin};
ghost use Rattle.program_words.specs.Plans.{job_named, tree_named, number_within, number_or, seed_or_none, settings_by, joins_out_of_order, plan_by, values_as_text, kind_of, IsWithin};

use definitions::{MOST_MEMBERS, MOST_PARTS, MOST_PLACES};
use record_text::{Kind, parse_number};
use run_settings::{MOST_KEEP, MOST_SHARDS, MOST_WORKERS, Settings};

/// The name of a job.
#[derive(Clone, Copy, Debug, PartialEq, Eq)]
pub enum JobName {
    Count,
    Index,
    TopK,
    Latest,
}

/// The name of a tree.
#[derive(Clone, Copy, Debug, PartialEq, Eq)]
pub enum TreeName {
    Folding,
    Random,
    Rotating,
    Coalescing,
}

impl TreeName {
    /// The kind of window that the tree is for.
    pub fn kind(self) -> Kind
        ensures { result ≡ kind_of self }
    {
        match self {
            TreeName::Folding => Kind::Buckets,
            TreeName::Random => Kind::Document,
            TreeName::Rotating => Kind::Circle,
            TreeName::Coalescing => Kind::Growing,
        }
    }
}

/// What the arguments ask for. An option that is not given has its default.
#[derive(Clone, Copy, Debug, PartialEq, Eq)]
pub struct Plan {
    pub job: JobName,
    /// How many members `topk` keeps, from 1 to [`MOST_MEMBERS`].
    pub k: u32,
    pub tree: TreeName,
    /// How the script is processed. `places` is the value of `--buckets`.
    pub settings: Settings,
    /// The number from which the script is generated, if it is.
    pub seed: Option<u32>,
    /// Whether the answer is ranked by its counts. Not used yet.
    pub then: bool,
}

/// What the arguments are refused for.
#[derive(Clone, Copy, Debug, PartialEq, Eq)]
pub enum Field {
    /// They are not well formed.
    Words,
    Job,
    K,
    /// The name of the tree, or that the job cannot be used with it.
    Tree,
    Buckets,
    Parts,
    Workers,
    Shards,
    Keep,
    Gen,
}

/// The values that the arguments give, each as it is written, and whether they have the flag.
#[derive(Clone, Copy, Debug, PartialEq, Eq)]
pub struct Values<'a> {
    pub job: Option<&'a str>,
    pub k: Option<&'a str>,
    pub tree: Option<&'a str>,
    pub buckets: Option<&'a str>,
    pub parts: Option<&'a str>,
    pub workers: Option<&'a str>,
    pub shards: Option<&'a str>,
    pub keep: Option<&'a str>,
    pub generate: Option<&'a str>,
    pub work: bool,
}

/// The job of a name.
fn job_named(name: &str) -> Option<JobName>
    ensures { result ≡ job_named name.now }
{
    match name {
        "count" => Some(JobName::Count),
        "index" => Some(JobName::Index),
        "topk" => Some(JobName::TopK),
        "latest" => Some(JobName::Latest),
        _ => None,
    }
}

/// The tree of a name.
fn tree_named(name: &str) -> Option<TreeName>
    ensures { result ≡ tree_named name.now }
{
    match name {
        "folding" => Some(TreeName::Folding),
        "random" => Some(TreeName::Random),
        "rotating" => Some(TreeName::Rotating),
        "coalescing" => Some(TreeName::Coalescing),
        _ => None,
    }
}

/// The number that a text spells, if it is from `least` to `most`.
fn number_within(least: u32, most: u32, text: &str) -> Option<u32>
    ensures number { result ≡ number_within least most text.now }
    ensures within { IfSome result (λ n. (least ≤ n) × (n ≤ most)) }
{
    match parse_number(text.as_bytes()) {
        Some(n) if n >= least && n <= most => Some(n),
        _ => None,
    }
}

/// The number that a value spells, if it is from `least` to `most`; `default` if no value is given.
fn number_or(default: u32, least: u32, most: u32, value: Option<&str>) -> Option<u32>
    requires { (least ≤ default) × (default ≤ most) }
    ensures number { result ≡ number_or default least most (option_map (λ text. text.now) value.entry) }
    ensures within { IfSome result (λ n. (least ≤ n) × (n ≤ most)) }
{
    match value {
        Some(text) => number_within(least, most, text),
        None => Some(default),
    }
}

/// The seed that a value spells, or no seed if no value is given.
fn seed_or_none(value: Option<&str>) -> Option<Option<u32>>
    ensures { result ≡ seed_or_none (option_map (λ text. text.now) value.entry) }
{
    match value {
        Some(text) => parse_number(text.as_bytes()).map(Some),
        None => Some(None),
    }
}

/// The settings that the values ask for, or the first value that is refused: it is no number, or outside its limits.
fn settings_by(values: &Values<'_>) -> Result<Settings, Field>
    ensures settings { result ≡ settings_by (values_as_text values.now) }
    ensures within { IfOk result AreWithin }
{
    let Some(places) = number_or(24, 1, MOST_PLACES, values.buckets) else {
        return Err(Field::Buckets);
    };
    let Some(parts) = number_or(1, 1, MOST_PARTS, values.parts) else {
        return Err(Field::Parts);
    };
    let Some(workers) = number_or(1, 1, MOST_WORKERS, values.workers) else {
        return Err(Field::Workers);
    };
    let Some(shards) = number_or(1, 1, MOST_SHARDS, values.shards) else {
        return Err(Field::Shards);
    };
    let Some(keep) = number_or(1, 0, MOST_KEEP, values.keep) else {
        return Err(Field::Keep);
    };
    Ok(Settings {
        parts,
        workers,
        shards,
        keep,
        places,
        work: values.work,
        ..Settings::default()
    })
}

/// Whether the tree joins in another order than the job needs: `latest` takes the last value in the window's order, and
/// `rotating` joins buckets in the order of their places.
fn joins_out_of_order(job: JobName, tree: TreeName) -> bool
    ensures { result ≡ joins_out_of_order job tree }
{
    job == JobName::Latest && tree == TreeName::Rotating
}

/// The plan that the values ask for, or the first value that is refused: it is required and missing, it is not in its
/// table, it is no number, or it is outside its limits. Last, a tree is refused that joins in another order than the
/// job needs.
pub fn plan_by(values: Values<'_>) -> Result<Plan, Field>
    ensures plan { result ≡ plan_by (values_as_text values.entry) }
    ensures within { IfOk result IsWithin }
{
    let Some(name) = values.job else {
        return Err(Field::Job);
    };
    let Some(job) = job_named(name) else {
        return Err(Field::Job);
    };
    let Some(k) = number_or(10, 1, MOST_MEMBERS, values.k) else {
        return Err(Field::K);
    };
    let Some(name) = values.tree else {
        return Err(Field::Tree);
    };
    let Some(tree) = tree_named(name) else {
        return Err(Field::Tree);
    };
    let settings = match settings_by(&values) {
        Ok(settings) => settings,
        Err(field) => return Err(field),
    };
    let Some(seed) = seed_or_none(values.generate) else {
        return Err(Field::Gen);
    };
    if joins_out_of_order(job, tree) {
        return Err(Field::Tree);
    }
    Ok(Plan {
        job,
        k,
        tree,
        settings,
        seed,
        then: false,
    })
}
