//! With how many pages a script is played, and within which limits.
use script_lines::Pages;
use sm_names::Limits;
use test_streams::decimal;

/// Pages of a pool, and limits.
#[derive(Clone, Copy)]
pub struct Setting {
    pub pages: Pages,
    pub limits: Limits,
}

// The five numbers of a text.
fn numbers_of(text: &str) -> Option<[u32; 5]> {
    let mut numbers = [0; 5];
    let mut words = text.split_whitespace();
    for number in &mut numbers {
        *number = decimal(words.next()?)?;
    }
    Some(numbers)
}

// The limits of five numbers, if these are in range.
fn limits_of(text: &str) -> Option<Limits> {
    let [events, nodes, collections, trackers, handles] = numbers_of(text)?;
    Limits::new(events, nodes, collections, trackers, handles)
}

impl Setting {
    /// 16 pages and the greatest limits.
    pub fn full() -> Option<Setting> {
        let pages = Pages::new(16)?;
        Some(Setting {
            pages,
            limits: Limits::full(),
        })
    }

    /// The setting with what the line sets, or `None` if it sets nothing.
    pub fn with(self, line: &str) -> Option<Setting> {
        let mut setting = self;
        if let Some(count) = line.strip_prefix("@ pages ") {
            setting.pages = Pages::new(decimal(count)?)?;
        } else {
            setting.limits = limits_of(line.strip_prefix("@ limits ")?)?;
        }
        Some(setting)
    }
}
