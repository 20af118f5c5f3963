use crate::form::write_form;
use std::fmt;

/// The words of a run of which one is wrong.
#[derive(Drop)]
pub struct Usage<'a> {
    pub words: &'a [String],
}

/// The word that is wrong, and behind it, on a line of its own, the form of such a run.
impl fmt::Display for Usage<'_> {
    fn fmt<W: fmt::Write>(&self, f: &mut fmt::Formatter<W>) -> fmt::Result {
        if let Some(word) = self.words.iter().find(|word| is_option(word)) {
            return write_form(
                f,
                "the word `{}` begins with -, and there are no options: {}",
                &[word.as_str(), HELP],
            );
        }
        let [form, others @ ..] = self.words else {
            return write_form(f, "there are no words, or one is not UTF-8: {}", &[HELP]);
        };
        match form.as_str() {
            "run" => write_names(f, "run", "trace", others),
            "record" => write_names(f, "record", "trace", others),
            "stream" => write_names(f, "stream", "stream", others),
            "stream-record" => write_names(f, "stream-record", "stream", others),
            "make" => write_load(f, others),
            "audit" => write_audit(f, others),
            _ => write_form(
                f,
                "the first word `{}` is none of run, record, stream, stream-record, make and audit: {}",
                &[form.as_str(), HELP],
            ),
        }
    }
}

/// Where the forms of a run stand.
const HELP: &str = "./fdpdrive help tells the forms";

/// Traces or streams of a run, and the words in front of them.
const MOST_WORDS: usize = 18;

/// Records of an audit, and the word in front of them.
const MOST_AUDIT_WORDS: usize = 17;

fn is_option(word: &String) -> bool {
    word.as_bytes().starts_with(b"-")
}

fn write_names<W: fmt::Write>(
    f: &mut fmt::Formatter<W>,
    form: &str,
    text: &str,
    words: &[String],
) -> fmt::Result {
    match words {
        [] => write_form(f, "a configuration is wanting behind `{}`", &[form])?,
        [config] => write_form(f, "an image is wanting behind `{}`", &[config.as_str()])?,
        [_, image] => write_form(f, "a {} is wanting behind `{}`", &[text, image.as_str()])?,
        _ => match words.get(MOST_WORDS) {
            Some(word) => write_form(f, "`{}` is a seventeenth {}", &[word.as_str(), text])?,
            None => f.write_str("the words have no form")?,
        },
    }
    write_form(
        f,
        "\nusage: fdpdrive {} CONFIG IMAGE {} .. (one to sixteen {}s)",
        &[form, place_of(text), text],
    )
}

/// What stands for such a text in the forms.
fn place_of(text: &str) -> &str {
    if text == "trace" { "TRACE" } else { "STREAM" }
}

fn write_load<W: fmt::Write>(f: &mut fmt::Formatter<W>, words: &[String]) -> fmt::Result {
    match words {
        [] => f.write_str("a number is wanting behind `make`")?,
        [number] => write_form(f, "an image is wanting behind `{}`", &[number.as_str()])?,
        [number, _] => write_form(
            f,
            "`{}` is no number of one to four digits up to 8192",
            &[number.as_str()],
        )?,
        [_, _, word, ..] => write_form(f, "the word `{}` is one too many", &[word.as_str()])?,
    }
    f.write_str("\nusage: fdpdrive make NUMBER IMAGE")
}

fn write_audit<W: fmt::Write>(f: &mut fmt::Formatter<W>, words: &[String]) -> fmt::Result {
    match words {
        [] => f.write_str("a configuration is wanting behind `audit`")?,
        [config] => write_form(f, "a record is wanting behind `{}`", &[config.as_str()])?,
        _ => match words.get(MOST_AUDIT_WORDS) {
            Some(word) => write_form(f, "the word `{}` is one too many", &[word.as_str()])?,
            None => f.write_str("the words have no form")?,
        },
    }
    f.write_str("\nusage: fdpdrive audit CONFIG RECORD .. (one to sixteen records)")
}
