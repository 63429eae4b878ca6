// The page up to its style. A browser takes the one style and the one script whose hashes stand here, and asks this server alone. Each is
// the sha256 of the bytes between the tags: after an edit of these `tests/events` tells the right one.

pub(crate) const HEAD: &str = r##"<!doctype html>
<html lang="en">
<head>
<meta charset="utf-8">
<meta http-equiv="Content-Security-Policy" content="default-src 'none'; connect-src 'self'; img-src data:; style-src 'sha256-AORvXHZuGSmTDqwD5BDlLQHueeny5wAq1gWdnBpJEaw='; script-src 'sha256-bg8hKKXRReC0ekQkXnB3pjpT3TzdOXcGAjlLVF8fJ2U='; base-uri 'none'; form-action 'none'">
<meta name="viewport" content="width=device-width, initial-scale=1">
<meta name="referrer" content="no-referrer">
<title>rxline</title>
<link rel="icon" href="data:image/svg+xml,%3Csvg xmlns='http://www.w3.org/2000/svg' viewBox='0 0 32 32'%3E%3Cpath d='M1 16h30' stroke='%23888' stroke-width='2'/%3E%3Ccircle cx='9' cy='16' r='6' fill='%23d1416a'/%3E%3Ccircle cx='22' cy='16' r='6' fill='%233b74c4'/%3E%3C/svg%3E">
<style>"##;
