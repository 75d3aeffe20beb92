//! Of a page, what stands behind the data.

/// Of a page, what stands behind the data.
pub(crate) const TAIL: &str = r###"</script>
</body>
</html>
"###;
