//! Which words ask for a page of help, and which page is on which word.
ghost use Rattle.std.specs.Prelude.{◌≡◌, map, option_map, string_bytes};
ghost use Rattle.fx_command.specs.Help.{is_help, topic_of, form_page, page_on};

mod binding;
mod calls;
mod fibers;
mod leaves;
mod masking;
mod queues;
mod resources;
mod scripts;

/// The word that the first page is on.
const HELP: &str = "help";

fn is_help(word: &str) -> bool
    ensures { result ≡ is_help word.now }
{
    matches!(word, "help" | "--help" | "-h")
}

/// The word on which these words ask for help, if they do: the one after `help`, or `help` itself.
pub(crate) fn topic_of(words: &[String]) -> Option<&str>
    ensures { option_map (λ topic. topic.now) result ≡ topic_of (map string_bytes words.now) }
{
    match words {
        [word] if is_help(word.as_str()) => Some(HELP),
        [word, topic] if is_help(word.as_str()) => Some(topic.as_str()),
        _ => None,
    }
}

/// The page on a form of a term.
fn form_page(word: &str) -> Option<&'static str>
    ensures { option_map (λ page. page.now) result ≡ form_page word.now }
{
    leaves::page_on(word)
        .or(binding::page_on(word))
        .or(masking::page_on(word))
        .or(resources::page_on(word))
        .or(fibers::page_on(word))
        .or(queues::page_on(word))
}

/// The page on this word, if there is one.
pub(crate) fn page_on(word: &str) -> Option<&'static str>
    ensures { option_map (λ page. page.now) result ≡ page_on word.now }
{
    calls::page_on(word)
        .or(scripts::page_on(word))
        .or(form_page(word))
}
